// Calls as values, and when two lists of them are alike.
ghost use Rattle.secrecy.specs.Lists.{LikeCalls};
ghost use Rattle.std.specs.Prelude.{◌≡◌, true, false, Decides};

use tree::numbers::RecordNumber;

// A call of an Oram, with what it names and puts.
#[derive(Drop)]
pub enum Call<K> {
    Open,
    Get(RecordNumber),
    Put(RecordNumber, K),
    Drain,
    TearOff,
}

// What a call is, whatever it names and puts: a get and a put are of one sort.
#[derive(Clone, Copy, PartialEq, Eq)]
enum Sort {
    Open,
    Ask,
    Drain,
    TearOff,
}

impl<K> Call<K> {
    ghost use Rattle.history.specs.Histories.{sort};
    ghost use Rattle.secrecy.specs.Lists.{call_in};
    ghost use Rattle.secrecy.specs.Sorts.{sort_in};

    fn sort(&self) -> Sort
        ensures { sort_in result ≡ sort (call_in self.now) }
    {
        match self {
            Call::Open => Sort::Open,
            Call::Get(_) | Call::Put(_, _) => Sort::Ask,
            Call::Drain => Sort::Drain,
            Call::TearOff => Sort::TearOff,
        }
    }

    fn is_like(&self, other: &Self) -> bool
        ensures { Decides result (sort (call_in self.now) ≡ sort (call_in other.now)) }
    {
        self.sort() == other.sort()
    }
}

// Whether two lists of calls are alike: equally long, and at each turn both open, both drain, both tear off, or each gets or puts.
pub fn are_alike<K>(first: &[Call<K>], second: &[Call<K>]) -> bool
    ensures yes { result ≡ true → LikeCalls first.now second.now }
    ensures no { result ≡ false → LikeCalls first.now second.now → ⊥ }
{
    first.len() == second.len()
        && first
            .iter()
            .zip(second)
            .all(|(one, other)| one.is_like(other))
}
