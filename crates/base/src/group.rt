// Groups: keys by name.
ghost use Rattle.std.specs.Prelude.{◌≡◌, true};
ghost use Rattle.base.specs.Bytes.{Bytes};
ghost use Rattle.base.specs.Codes.{before_zero, group_text, padded};

mod naming;

// A group of observers, by a text of 1 to 16 bytes, none of them zero, which is kept padded with zeros: so the
// padding says where the text ends.
#[derive(Clone, Copy)]
pub struct Group {
    bytes: [u8; 16],
    ghost named: { group_text (before_zero bytes) ≡ true },
    ghost filled: { padded (before_zero bytes) ≡ bytes },
    ghost small: { Bytes bytes },
}
