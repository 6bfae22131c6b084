ghost use Rattle.std.specs.Prelude.{◌≡◌, [], ◌∷◌, ◌++◌, if◌then◌else◌};

use turn_board::Kept;

/// A state that stands for the list of its makers.
#[derive(Drop)]
pub struct Makers {
    pub list: Vec<u32>,
}

impl Kept for Makers {
    type Entry = u32;

    ghost entries = { λ _ s. s.list.items };

    ghost maker = { λ maker. maker };

    ghost label = { λ _. [] };

    fn length(&self) -> u64 {
        self.list.len() as u64
    }
}

impl Makers {
    /// One entry more, if there is memory.
    pub fn add(&mut self, maker: u32) -> bool
        ensures { self.new.list.items
            ≡ (if result then self.old.list.items ++ maker ∷ [] else self.old.list.items) }
    {
        self.list.push(maker).is_ok()
    }
}
