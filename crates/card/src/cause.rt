// The causes for which a call is refused.
ghost use Rattle.std.specs.Prelude.{◌≡◌};
ghost use Rattle.card.specs.Causes.{number_of};

// In the order of the card: of several causes the first is named.
#[derive(Clone, Copy, PartialEq, Eq, PartialOrd, Ord, Debug)]
pub enum Cause {
    // A row cannot work: there is no tree of its depth, or its store has too few buckets, or the map below is too long or too deep.
    Unfit = 1,
    // There is no such number.
    NoNumber = 2,
    // Not all records are opened yet.
    NotOpened = 3,
    // All records are opened already.
    AllOpened = 4,
    // The coins are not a share for each row.
    WrongCoins = 5,
    // The row has no such leaf.
    NoLeaf = 6,
    // The log has fewer free entries than the call makes.
    LogFull = 7,
    // The queue has no room for what arrives.
    QueueFull = 8,
    // The store has no such bucket.
    NoBucket = 9,
    // The log has no such entry.
    NoEntry = 10,
}

impl Cause {
    // The cause's number on the card.
    pub fn number(self) -> u8
        ensures { result ≡ number_of self }
    {
        self as u8
    }
}
