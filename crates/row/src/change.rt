// What a request puts in the place of what stood there.
ghost use Rattle.std.specs.Prelude.{◌≡◌, ℕ, List, Option};

use tree::block::BLOCK_WORDS;

// A change of a record's words. A trait and no closure: what calls a closure must require that it may be called, and a public
// function requires nothing.
pub trait Change {
    // The words that arrive, if any, from those that stood there, if any.
    ghost changed: { Self → Option (List ℕ) → Option (List ℕ) };

    fn change(self, found: Option<[u32; BLOCK_WORDS]>) -> Option<[u32; BLOCK_WORDS]>
        ensures { result ≡ changed self found };
}
