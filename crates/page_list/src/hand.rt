//! The pages at hand: the one that instructions are fetched from, and lines of pages that may be read or written.
ghost use Rattle.std.specs.Prelude.{◌≡◌, IfOk, IsSome, Some, length, replicate};
ghost use Rattle.page_list.specs.Entries.{empty_lines, is_held, line_of, lines, no_page, nothing_at_hand};
ghost use Rattle.page_list.specs.Slots.{code_after, hand_of, line_frame, lines_after, with_line, without_line};

use crate::code::{CodePage, NO_CODE};
use crate::slots::{Slot, code_with};
use frame_arena::{Frame, OutOfMemory};
use std::alloc::Global;

/// The number of lines.
pub(crate) const LINES: usize = 64;

/// A line for each value of the low six bits of a page's number: a page, its frame, whether it has none, and its place in
/// the list. A line that is empty has a page of another line.
#[derive(Drop)]
pub(crate) struct Lines {
    pub(crate) pages: [u64; LINES],
    pub(crate) frames: [u32; LINES],
    // beside the frames, so that a page that is written is found with no test of it
    pub(crate) bare: [bool; LINES],
    pub(crate) places: [usize; LINES],
}

/// The pages at hand. The lines are in boxes, so that what has them can be moved.
#[derive(Drop)]
pub(crate) struct Hand {
    pub(crate) code: CodePage,
    pub(crate) reads: Box<Lines>,
    pub(crate) writes: Box<Lines>,
}

/// The line of a page.
#[inline(always)]
fn line_of(page: u64) -> usize
    ensures { result ≡ line_of page }
{
    (page % LINES as u64) as usize
}

impl Lines {
    /// Lines that are all empty.
    pub(crate) fn empty() -> Lines
        ensures pages { result.pages ≡ empty_lines }
        ensures places { result.places ≡ replicate lines 0 }
    {
        // page 1 is of another line than line 0 and those from line 2 on, and page 0 of another than line 1
        let mut pages = [1; LINES];
        pages[1] = 0;
        Lines {
            pages,
            frames: [0; LINES],
            bare: [false; LINES],
            places: [0; LINES],
        }
    }

    /// Empties all lines.
    pub(crate) fn clear(&mut self)
        ensures { self.new.pages ≡ empty_lines }
    {
        self.pages = [1; LINES];
        self.pages[1] = 0;
    }

    /// Whether the line of a page has the page.
    #[inline(always)]
    pub(crate) fn has(&self, page: u64) -> bool
        ensures { result ≡ is_held self.now.pages page }
    {
        self.pages[line_of(page)] == page
    }

    /// The frame in the line of a page, if the page has one.
    #[inline(always)]
    pub(crate) fn frame(&self, page: u64) -> Option<u32>
        ensures { result ≡ line_frame self.now (line_of page) }
    {
        let line = line_of(page);
        if self.bare[line] {
            None
        } else {
            Some(self.frames[line])
        }
    }

    /// The frame in the line of a page that has one.
    #[inline(always)]
    pub(crate) fn own_frame(&self, page: u64) -> u32
        requires { IsSome (line_frame self.now (line_of page)) }
        ensures { line_frame self.now (line_of page) ≡ Some result }
    {
        self.frames[line_of(page)]
    }

    /// Puts a page, its frame and its place into its line.
    pub(crate) fn set(&mut self, page: u64, frame: Option<u32>, place: usize)
        ensures line { self.new ≡ with_line self.old page frame place }
        ensures pages { length self.old.pages ≡ lines }
        ensures frames { length self.old.frames ≡ lines }
        ensures bare { length self.old.bare ≡ lines }
        ensures places { length self.old.places ≡ lines }
    {
        let line = line_of(page);
        self.pages[line] = page;
        self.bare[line] = frame.is_none();
        self.frames[line] = frame.unwrap_or(0);
        self.places[line] = place;
    }

    /// Empties the line of a page.
    pub(crate) fn drop_line(&mut self, page: u64)
        ensures line { self.new ≡ without_line self.old page }
        ensures pages { length self.old.pages ≡ lines }
    {
        let line = line_of(page);
        self.pages[line] = line as u64 + 1;
    }

    /// The page at a place gets another frame: its line has that frame from now on, if it has the page.
    fn turn(&mut self, page: u64, place: usize, frame: &Frame)
        ensures lines { self.new ≡ lines_after self.old page place frame.now }
        ensures frames { length self.old.frames ≡ lines }
        ensures bare { length self.old.bare ≡ lines }
    {
        let line = line_of(page);
        if self.pages[line] == page && self.places[line] == place {
            self.frames[line] = frame.number();
            self.bare[line] = false;
        }
    }
}

impl Hand {
    /// No page is at hand. The only error is want of memory.
    pub(crate) fn empty(alloc: Global) -> Result<Hand, OutOfMemory>
        ensures { IfOk result (λ h. hand_of h ≡ nothing_at_hand) }
    {
        Ok(Hand {
            code: NO_CODE,
            reads: Box::new(alloc, Lines::empty())?,
            writes: Box::new(alloc, Lines::empty())?,
        })
    }

    /// From now on no page is at hand.
    pub(crate) fn clear(&mut self)
        ensures code { self.new.code.number ≡ no_page }
        ensures reads { self.new.reads.value.pages ≡ empty_lines }
        ensures writes { self.new.writes.value.pages ≡ empty_lines }
    {
        self.code = NO_CODE;
        self.reads.clear();
        self.writes.clear();
    }

    /// The page of a slot, at a place, gets another frame. It isn't at hand to be written.
    pub(crate) fn turn(&mut self, slot: &Slot, place: usize, frame: &Frame)
        ensures code { self.new.code ≡ code_after self.old.code slot.now frame.now }
        ensures reads { self.new.reads.value ≡ lines_after self.old.reads.value slot.now.number place frame.now }
        ensures writes { self.new.writes.value ≡ self.old.writes.value }
        ensures frames { length self.old.reads.value.frames ≡ lines }
        ensures bare { length self.old.reads.value.bare ≡ lines }
    {
        self.code = code_with(self.code, slot, frame);
        self.reads.turn(slot.number, place, frame);
    }

    /// The lines of a page are empty from now on, and no page is at hand to be fetched from.
    pub(crate) fn drop_page(&mut self, page: u64)
        ensures code { self.new.code.number ≡ no_page }
        ensures reads { self.new.reads.value ≡ without_line self.old.reads.value page }
        ensures writes { self.new.writes.value ≡ without_line self.old.writes.value page }
        ensures many_reads { length self.old.reads.value.pages ≡ lines }
        ensures many_writes { length self.old.writes.value.pages ≡ lines }
    {
        self.code = NO_CODE;
        self.reads.drop_line(page);
        self.writes.drop_line(page);
    }
}
