//! The names of commands.
ghost use Rattle.std.specs.Prelude.{◌≡◌, fold, nat_eq};
ghost use Rattle.std.specs.List.{find, starts_with};
ghost use Rattle.debug_names.specs.Verbs.{
  all_verbs,
  form_of,
  is_form,
  is_named,
  least_of,
  name_of,
  nearer,
  nearest,
  shared,
  short_of,
  verb_of,
};

/// A command's name.
#[derive(Clone, Copy)]
pub enum Verb {
    Break,
    BreakOnce,
    Backtrace,
    Delete,
    Disassemble,
    Disable,
    Enable,
    Ignore,
    Info,
    Watch,
    WatchReads,
    WatchBoth,
    Run,
    Start,
    Continue,
    Step,
    Next,
    StepLine,
    NextLine,
    Finish,
    Until,
    Advance,
    StepBack,
    NextBack,
    ContinueBack,
    FinishBack,
    Goto,
    LastWrite,
    Print,
    Examine,
    Find,
    Where,
    When,
    Lanes,
    Listing,
    Set,
    Source,
    Help,
    Quit,
}

/// How many names there are.
const COUNT: usize = 39;

impl Verb {
    /// The whole name.
    pub fn name(self) -> &'static str
        ensures { result.now ≡ name_of self }
    {
        match self {
            Verb::Break => "break",
            Verb::BreakOnce => "tbreak",
            Verb::Backtrace => "backtrace",
            Verb::Delete => "delete",
            Verb::Disassemble => "disassemble",
            Verb::Disable => "disable",
            Verb::Enable => "enable",
            Verb::Ignore => "ignore",
            Verb::Info => "info",
            Verb::Watch => "watch",
            Verb::WatchReads => "rwatch",
            Verb::WatchBoth => "awatch",
            Verb::Run => "run",
            Verb::Start => "start",
            Verb::Continue => "continue",
            Verb::Step => "stepi",
            Verb::Next => "nexti",
            Verb::StepLine => "step",
            Verb::NextLine => "next",
            Verb::Finish => "finish",
            Verb::Until => "until",
            Verb::Advance => "advance",
            Verb::StepBack => "reverse-stepi",
            Verb::NextBack => "reverse-nexti",
            Verb::ContinueBack => "reverse-continue",
            Verb::FinishBack => "reverse-finish",
            Verb::Goto => "goto",
            Verb::LastWrite => "last-write",
            Verb::Print => "print",
            Verb::Examine => "x",
            Verb::Find => "find",
            Verb::Where => "where",
            Verb::When => "when",
            Verb::Lanes => "lanes",
            Verb::Listing => "list",
            Verb::Set => "set",
            Verb::Source => "source",
            Verb::Help => "help",
            Verb::Quit => "quit",
        }
    }

    /// The short form.
    fn short(self) -> &'static str
        ensures { result.now ≡ short_of self }
    {
        match self {
            Verb::Break => "b",
            Verb::BreakOnce => "tb",
            Verb::Backtrace => "bt",
            Verb::Delete => "d",
            Verb::Disassemble => "disas",
            Verb::Disable => "dis",
            Verb::Enable => "en",
            Verb::Ignore => "ign",
            Verb::Info => "i",
            Verb::Watch => "wa",
            Verb::WatchReads => "rw",
            Verb::WatchBoth => "aw",
            Verb::Run => "r",
            Verb::Start => "sta",
            Verb::Continue => "c",
            Verb::Step => "si",
            Verb::Next => "ni",
            Verb::StepLine => "s",
            Verb::NextLine => "n",
            Verb::Finish => "fin",
            Verb::Until => "u",
            Verb::Advance => "adv",
            Verb::StepBack => "rsi",
            Verb::NextBack => "rni",
            Verb::ContinueBack => "rc",
            Verb::FinishBack => "rf",
            Verb::Goto => "g",
            Verb::LastWrite => "lw",
            Verb::Print => "p",
            Verb::Examine => "x",
            Verb::Find => "find",
            Verb::Where => "whe",
            Verb::When => "wh",
            Verb::Lanes => "la",
            Verb::Listing => "l",
            Verb::Set => "se",
            Verb::Source => "so",
            Verb::Help => "h",
            Verb::Quit => "q",
        }
    }

    /// Of how many first letters a shorter name has at least.
    fn least(self) -> usize
        ensures { result ≡ least_of self }
    {
        match self {
            Verb::Break => 2,
            Verb::BreakOnce => 2,
            Verb::Backtrace => 2,
            Verb::Delete => 3,
            Verb::Disassemble => 5,
            Verb::Disable => 4,
            Verb::Enable => 2,
            Verb::Ignore => 2,
            Verb::Info => 3,
            Verb::Watch => 3,
            Verb::WatchReads => 2,
            Verb::WatchBoth => 2,
            Verb::Run => 2,
            Verb::Start => 4,
            Verb::Continue => 4,
            Verb::Step => 5,
            Verb::Next => 5,
            Verb::StepLine => 3,
            Verb::NextLine => 2,
            Verb::Finish => 4,
            Verb::Until => 3,
            Verb::Advance => 4,
            Verb::StepBack => 13,
            Verb::NextBack => 13,
            Verb::ContinueBack => 9,
            Verb::FinishBack => 9,
            Verb::Goto => 2,
            Verb::LastWrite => 3,
            Verb::Print => 2,
            Verb::Examine => 1,
            Verb::Find => 4,
            Verb::Where => 5,
            Verb::When => 4,
            Verb::Lanes => 2,
            Verb::Listing => 2,
            Verb::Set => 2,
            Verb::Source => 2,
            Verb::Help => 2,
            Verb::Quit => 2,
        }
    }

    /// How the command is written.
    pub fn form(self) -> &'static str
        ensures { result.now ≡ form_of self }
    {
        match self {
            Verb::Break => "break PLACE [if A == B]",
            Verb::BreakOnce => "tbreak PLACE [if A == B]",
            Verb::Backtrace => "backtrace",
            Verb::Delete => "delete [NUMBER]",
            Verb::Disassemble => "disassemble [PLACE]",
            Verb::Disable => "disable [NUMBER]",
            Verb::Enable => "enable [NUMBER]",
            Verb::Ignore => "ignore NUMBER COUNT",
            Verb::Info =>
                "info breakpoints | info registers [NAME ..] | info symbol PLACE | info line [PLACE]",
            Verb::Watch => "watch PLACE LENGTH",
            Verb::WatchReads => "rwatch PLACE LENGTH",
            Verb::WatchBoth => "awatch PLACE LENGTH",
            Verb::Run => "run",
            Verb::Start => "start",
            Verb::Continue => "continue [COUNT]",
            Verb::Step => "stepi [COUNT]",
            Verb::Next => "nexti [COUNT]",
            Verb::StepLine => "step [COUNT]",
            Verb::NextLine => "next [COUNT]",
            Verb::Finish => "finish",
            Verb::Until => "until PLACE",
            Verb::Advance => "advance PLACE",
            Verb::StepBack => "reverse-stepi [COUNT]",
            Verb::NextBack => "reverse-nexti [COUNT]",
            Verb::ContinueBack => "reverse-continue [COUNT]",
            Verb::FinishBack => "reverse-finish",
            Verb::Goto => "goto STEP",
            Verb::LastWrite => "last-write PLACE LENGTH",
            Verb::Print => "print[/x] REGISTER | print[/x] PLACE",
            Verb::Examine => "x/NFU PLACE",
            Verb::Find => "find[/SIZE] START, +LENGTH, VALUE ..",
            Verb::Where => "where",
            Verb::When => "when",
            Verb::Lanes => "lanes z0 [z1 p0 ..] [.s]",
            Verb::Listing => "list [PLACE]",
            Verb::Set => "set slice STEPS",
            Verb::Source => "source FILE",
            Verb::Help => "help [COMMAND]",
            Verb::Quit => "quit",
        }
    }
}

/// The table of names.
pub fn all_verbs() -> [Verb; COUNT]
    ensures { result ≡ all_verbs }
{
    [
        Verb::Break,
        Verb::BreakOnce,
        Verb::Backtrace,
        Verb::Delete,
        Verb::Disassemble,
        Verb::Disable,
        Verb::Enable,
        Verb::Ignore,
        Verb::Info,
        Verb::Watch,
        Verb::WatchReads,
        Verb::WatchBoth,
        Verb::Run,
        Verb::Start,
        Verb::Continue,
        Verb::Step,
        Verb::Next,
        Verb::StepLine,
        Verb::NextLine,
        Verb::Finish,
        Verb::Until,
        Verb::Advance,
        Verb::StepBack,
        Verb::NextBack,
        Verb::ContinueBack,
        Verb::FinishBack,
        Verb::Goto,
        Verb::LastWrite,
        Verb::Print,
        Verb::Examine,
        Verb::Find,
        Verb::Where,
        Verb::When,
        Verb::Lanes,
        Verb::Listing,
        Verb::Set,
        Verb::Source,
        Verb::Help,
        Verb::Quit,
    ]
}

/// Whether a name begins with a word.
pub fn begins(name: &str, word: &str) -> bool
    ensures { result ≡ starts_with nat_eq name.now word.now }
{
    name.as_bytes().starts_with(word.as_bytes())
}

/// Whether a word is a short form, or so many first letters of a name.
fn is_form(word: &str, short: &str, least: usize, name: &str) -> bool
    ensures { result ≡ is_form word.now short.now least name.now }
{
    word == short || (least <= word.len() && begins(name, word))
}

/// Whether a word names a command.
fn is_named(word: &str, verb: Verb) -> bool
    ensures { result ≡ is_named word.now verb }
{
    is_form(word, verb.short(), verb.least(), verb.name())
}

/// The first of some commands that a word names.
fn first_named(verbs: &[Verb], word: &str) -> Option<Verb>
    ensures { result ≡ find (is_named word.now) verbs.now }
{
    for verb in verbs {
        if is_named(word, *verb) {
            return Some(*verb);
        }
    }
    None
}

/// How many first letters two words share.
fn shared(word: &[u8], name: &[u8]) -> usize
    ensures { result ≡ shared word.now name.now }
{
    'letters: for k in 0..word.len() {
        if name.len() <= k || word[k] != name[k] {
            return k;
        }
    }
    word.len()
}

/// The one of two commands whose name shares more first letters with a word, and the first where both share as many.
fn nearer(word: &str, first: Verb, second: Verb) -> Verb
    ensures { result ≡ nearer word.now first second }
{
    let word = word.as_bytes();
    if shared(word, first.name().as_bytes()) < shared(word, second.name().as_bytes()) {
        second
    } else {
        first
    }
}

/// The first of some commands, and of another one before them, whose name shares the most first letters with a word.
fn nearest_among(verbs: &[Verb], word: &str, other: Verb) -> Verb
    ensures { result ≡ fold (nearer word.now) other verbs.now }
{
    let mut found = other;
    'verbs: for verb in verbs {
        found = nearer(word, found, *verb);
    }
    found
}

/// The first command of the table whose name shares the most first letters with a word; `help` where none shares one.
pub fn nearest(word: &str) -> Verb
    ensures { result ≡ nearest word.now }
{
    nearest_among(&all_verbs(), word, Verb::Help)
}

/// The command that a word names.
pub fn verb_of(word: &str) -> Option<Verb>
    ensures { result ≡ verb_of word.now }
{
    first_named(&all_verbs(), word)
}
