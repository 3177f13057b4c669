//! The names that a shelf in memory was asked for.

ghost use Rattle.std.specs.Prelude.{◌≡◌, ◌++◌, ◌∷◌, ℕ, List, [], map, string_bytes, String};
ghost use Rattle.std.specs.Global.{Global};
ghost use Rattle.avtp_memory.specs.Asked.{StandsForNames};
ghost use Rattle.avtp_memory.specs.state.Asked.{NamePushed};

use std::alloc::Global;

/// Names in the order in which they were asked for. If there is no memory for a name, that name and all later ones are
/// not kept.
#[derive(Debug, Drop)]
pub struct AskedNames {
    alloc: Global,
    pub names: Vec<String>,
    pub all: bool,
}

impl AskedNames {
    /// A list without names.
    pub fn new(alloc: Global) -> Self
        ensures { StandsForNames result [] }
    {
        AskedNames {
            alloc,
            names: Vec::new(alloc),
            all: true,
        }
    }

    /// Records that a name was asked for.
    pub fn note(&mut self, name: &str)
        ensures { (names : List (List ℕ)) → StandsForNames self.old names → StandsForNames self.new (names ++ name.now ∷ []) }
    {
        if self.all {
            self.all = push_name(self.alloc, &mut self.names, name);
        }
    }
}

// Appends a name, and returns whether there was memory for it.
fn push_name(alloc: Global, names: &mut Vec<String>, name: &str) -> bool
    ensures { NamePushed result (map (λ (n : String Global). string_bytes n) names.old.items) (map (λ (n : String Global). string_bytes n) names.new.items) name.now }
{
    let Ok(name) = String::from_str(alloc, name) else {
        return false;
    };
    names.push(name).is_ok()
}
