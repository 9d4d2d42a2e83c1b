//! Labels by their names.
ghost use Rattle.std.specs.Prelude.{◌≡◌, ◌++◌, [], ◌∷◌, None, option_map, IfOk, IsSome, MatchBool};
ghost use Rattle.asm_image.specs.Labels.{labeled_at};
ghost use Rattle.listing_model.specs.Layout.{label_named};

use asm_tokens::{Name, OutOfMemory};
use indexmap::IndexMap;
use listing_model::Section;
use std::alloc::{AllocError, Global};
use std::marker::Model;

/// A place in a section.
#[derive(Clone, Copy, Debug, PartialEq, Eq)]
pub struct Place {
    pub section: Section,
    pub at: u32,
}

/// Labels and their places, in the order in which they came. Contracts see them as a list.
#[derive(Drop)]
pub struct Labels {
    places: IndexMap<String, Place>,
}

impl Model for Labels {
    ghost use Rattle.std.specs.Prelude.{List};
    ghost use Rattle.listing_model.specs.Layout.{Labeled};

    ghost Value = { List Labeled };

    ghost use Rattle.asm_image.specs.Labels.{labels_of};

    ghost view = { λ s. labels_of s.places.entries };
}

impl Labels {
    /// No labels.
    pub fn new(alloc: Global) -> Labels
        ensures { result ≡ [] }
    {
        Labels {
            places: IndexMap::new(alloc),
        }
    }

    /// Adds a label. False where one of its name stands already.
    pub fn add(&mut self, name: Name, place: Place) -> Result<bool, OutOfMemory>
        ensures { IfOk result (λ new. MatchBool new ((label_named name self.old ≡ None)
            × (self.new ≡ self.old ++ labeled_at name place ∷ [])) (IsSome (label_named name self.old))) }
    {
        let Ok(old) = self.places.insert(name.text, place) else {
            return Err(AllocError);
        };
        Ok(old.is_none())
    }

    /// Where a label stands.
    pub fn find(&self, name: &str) -> Option<Place>
        ensures { option_map (labeled_at name.now) result ≡ label_named name.now self.now }
    {
        self.places.get(name).copied()
    }
}
