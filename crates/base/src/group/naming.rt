// How a group is made from its text, and its code.
ghost use Rattle.std.specs.Prelude.{◌≡◌, ◌≤◌, length};
ghost use Rattle.std.proofs.Common.{ap, rules};
ghost use Rattle.base.specs.Bytes.{Bytes};
ghost use Rattle.base.specs.Codes.{group_text, padded, group_code};
ghost use Rattle.base.specs.Groups.{text_of, texts, named};
ghost use Rattle.base.specs.Padding.{same_text};

use super::Group;
use crate::key::KeyKind;
use crate::refusal::Refusal;

// Whether a text may name a group.
fn is_name(text: &[u8]) -> bool
    ensures { result ≡ group_text text.now }
{
    // The test has a name, so that what is to be proved of it is not called by its number.
    let short = text.len() <= 16;
    !text.is_empty() && short && !text.contains(&0)
}

fn pad(text: &[u8]) -> [u8; 16]
    requires { length text.now ≤ 16 }
    ensures text { result ≡ padded text.now }
    ensures small { Bytes result }
{
    let mut bytes = [0u8; 16];
    bytes[0..text.len()].copy_from_slice(text);
    bytes
}

// The group of a text, or a refusal of one that names none.
impl TryFrom<&[u8]> for Group {
    type Error = Refusal;

    ghost try_from_gives = { λ text r. texts r ≡ named text.now };

    fn try_from(text: &[u8]) -> Result<Group, Refusal> {
        if !is_name(text) {
            return Err(Refusal::BadGroupText);
        }
        let bytes = pad(text);
        Ok(Group { bytes })
    }
}

// The text, padded with zeros.
impl KeyKind for Group {
    ghost kind = { 1 };

    ghost coded = { λ g. group_code (text_of g) };

    ghost same = { λ x y. text_of x ≡ text_of y };

    ghost few = { Prim.search rules };

    ghost apart = { λ x y e. same_text (text_of x) (text_of y) x.bytes y.bytes x.named y.named x.filled y.filled x.small y.small e };

    ghost alike = { λ x y e. ap group_code e };

    fn kind_number() -> u8 {
        1
    }

    fn code(&self) -> u128 {
        u128::from_be_bytes(self.bytes)
    }
}
