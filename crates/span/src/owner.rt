// Who has a map.
ghost use Rattle.std.specs.Prelude.{◌≡◌};
ghost use Rattle.span.specs.Owners.{owner_place};

// A span, by its place in the whole batch, or a chunk, by its place. No `Result`, since neither is a failure.
#[derive(Clone, Copy, PartialEq, Eq, Debug)]
pub enum Owner {
    Span(usize),
    Chunk(usize),
}

impl Owner {
    // The place of the span or chunk.
    pub fn place(self) -> usize
        ensures { result ≡ owner_place self }
    {
        match self {
            Owner::Span(place) | Owner::Chunk(place) => place,
        }
    }
}
