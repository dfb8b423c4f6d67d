// Every way in which a call says no.
ghost use Rattle.std.specs.Prelude.{◌≡◌};
ghost use Rattle.base.specs.Refusals.{number_of};

// The discriminant of a case is the number that stands for it outside.
#[derive(Clone, Copy, PartialEq, Eq, Debug)]
pub enum Refusal {
    MasksUnfit = 11,
    MediumNotFresh = 12,
    NoSuchIndex = 13,
    BadGroupText = 14,
    ValueOutOfRange = 15,
    BadMemory = 16,
    WorkerBusy = 20,
    WrongTicket = 21,
    AdvanceHeldBack = 23,
    LastEpoch = 24,
    CheckpointUnderWay = 25,
    NoCheckpointWalking = 26,
    CheckpointUnfinished = 27,
    BlocksLeft = 28,
    KeyLocked = 31,
    ReadChanged = 32,
    ReadsInvalid = 33,
    SequenceUsedUp = 34,
    NothingToSpill = 36,
    TooManyKeys = 37,
    NotPersistent = 39,
    TableFull = 41,
    NoRoomInBlock = 42,
    FileFull = 43,
    NoSuchBlock = 44,
    RetireOutOfRange = 45,
    NoBlockLeft = 46,
    MarkUnsound = 61,
    BadHeader = 62,
    BadSum = 63,
    BadPadding = 64,
    BadCommand = 65,
    MisplacedCommand = 66,
    FieldOutOfRange = 67,
    BalanceTooLow = 71,
    SlotTaken = 72,
}

impl Refusal {
    // A method and no `u8::from`: where it is called, `refusal.number()` says which number it is.
    pub fn number(self) -> u8
        ensures { result ≡ number_of self }
    {
        self as u8
    }
}
