// A round of calls on any medium.
ghost use Rattle.std.specs.Prelude.{◌≡◌};
ghost use Rattle.mediumdemo.specs.Rounds.{round_answer, round_after};

use crate::tally::tally;
use base::refusal::Refusal;
use medium::media::Medium;

// What each call of a round answered.
#[derive(Clone, Copy)]
pub struct Round {
    pub appended: Result<u32, Refusal>,
    pub synced: Result<u32, Refusal>,
    pub sum: Result<u32, Refusal>,
    pub retired: Result<u32, Refusal>,
}

// Appends a block, syncs, adds the file up, and retires the blocks below a number.
pub fn play_round<M: Medium>(m: &mut M, file: u8, block: &[u8; 512], number: u32) -> Round
    ensures answer { result ≡ round_answer (M.meaning m.old) file block.now number }
    ensures after { M.meaning m.new ≡ round_after (M.meaning m.old) file block.now number }
{
    let appended = m.append(file, block);
    let synced = m.sync(file);
    let sum = tally(m, file);
    let retired = m.retire(file, number);
    Round {
        appended,
        synced,
        sum,
        retired,
    }
}

// What two media answered to the same round.
#[derive(Clone, Copy)]
pub struct Twins {
    pub one: Round,
    pub other: Round,
}

// Plays the same round on two media: if they mean the same, they answer alike, and mean the same afterwards.
pub fn play_twins<M: Medium, N: Medium>(
    m: &mut M,
    n: &mut N,
    file: u8,
    block: &[u8; 512],
    number: u32,
) -> Twins
    ensures one { result.one ≡ round_answer (M.Medium.meaning m.old) file block.now number }
    ensures other { result.other ≡ round_answer (N.Medium.meaning n.old) file block.now number }
    ensures alike { M.Medium.meaning m.old ≡ N.Medium.meaning n.old → result.one ≡ result.other }
    ensures after { M.Medium.meaning m.old ≡ N.Medium.meaning n.old → M.Medium.meaning m.new ≡ N.Medium.meaning n.new }
{
    let one = play_round(m, file, block, number);
    let other = play_round(n, file, block, number);
    Twins { one, other }
}
