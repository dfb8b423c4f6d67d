// A medium whose power can be made to fail.
ghost use Rattle.std.specs.Prelude.{◌≡◌};
ghost use Rattle.medium.specs.Cuts.{cut_after, Cut};

use crate::media::Medium;

pub trait Cuttable: Medium {
    // Cuts the power. Each file keeps what is synced, and shows so many blocks of the tails after it, or all that it
    // had unsynced if that is less; the tails of file 0 come first. The tails are one list with the lengths beside it,
    // as `cut_after` takes them: a slice for each file would need a second definition of the same cut.
    fn cut(&mut self, shown: &[u32; 8], tails: &[[u8; 512]])
        ensures after { Self.Medium.meaning self.new ≡ cut_after (Self.Medium.meaning self.old) shown.now tails.now }
        ensures allowed { Cut (Self.Medium.meaning self.old) (Self.Medium.meaning self.new) };
}

// A medium that is lent can be cut where it stands.
impl<'m, M: Cuttable> Cuttable for &'m mut M {
    fn cut(&mut self, shown: &[u32; 8], tails: &[[u8; 512]]) {
        (**self).cut(shown, tails)
    }
}
