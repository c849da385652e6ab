//! Streams of one read, in which one is found by halving.
ghost use Rattle.std.specs.Prelude.{◌≡◌, ◌==◌, ℕ, length};
ghost use Rattle.std.specs.List.{list_any};
ghost use Rattle.std.specs.List.Sorted.{IsNonDecreasing};

/// Streams in rising order, so that a read costs no more than its events and their order, however many of its requests
/// are reset.
#[derive(Drop)]
pub struct Ids {
    pub ids: Vec<u32>,
    ghost rise: { IsNonDecreasing ids.items },
}

impl Ids {
    /// These streams.
    pub fn of(mut ids: Vec<u32>) -> Ids
        ensures { (id : ℕ) → list_any (λ g. g == id) result.ids.items ≡ list_any (λ g. g == id) ids.items }
    {
        ids.sort_unstable();
        Ids { ids }
    }

    pub fn is_empty(&self) -> bool
        ensures { result ≡ (length self.now.ids.items == 0) }
    {
        self.ids.is_empty()
    }

    pub fn has(&self, id: u32) -> bool
        ensures { result ≡ list_any (λ g. g == id) self.now.ids.items }
    {
        self.ids.as_slice().binary_search(&id).is_ok()
    }
}
