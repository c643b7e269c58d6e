// Where in a lent table an answer goes.
ghost use Rattle.std.specs.Prelude.{◌≡◌, ◌≤◌, length};
ghost use Rattle.meaning.specs.Refusal.{over};
ghost use Rattle.checks.specs.Table.{code_of};
ghost use Rattle.settle.specs.Cited.{Placed};

use checks::Refusal;

// A part of a table: the `room` numbers from `at`, as far as the table has them.
#[derive(Clone, Copy, Debug, PartialEq, Eq)]
pub struct Part {
    pub at: usize,
    pub room: usize,
}

// Copies an answer to the start of a list.
#[tactic(auto, unfolding(meaning::specs::Refusal::over))]
fn copy(answer: &[u64], out: &mut [u64])
    requires { length answer.now ≤ length out.old }
    ensures { out.new ≡ over answer.now out.old }
{
    let n = answer.len();
    out[..n].copy_from_slice(answer);
}

impl Part {
    // All of a list.
    pub fn whole(list: &[u64]) -> Part
        ensures start { result.at ≡ 0 }
        ensures end { result.room ≡ length list.now }
    {
        Part {
            at: 0,
            room: list.len(),
        }
    }

    // Writes an answer to its start, or tells that it has too little room.
    #[tactic(auto, using(crate::proofs::Placing::placing))]
    pub(crate) fn write(self, answer: &[u64], table: &mut [u64]) -> Result<(), Refusal>
        requires { 1 ≤ length answer.now }
        ensures { Placed answer.now self.at self.room table.old table.new (code_of result) }
    {
        if table.len() < self.at
            || self.room < answer.len()
            || table.len() - self.at < answer.len()
        {
            return Err(Refusal::Room);
        }
        copy(answer, &mut table[self.at..]);
        Ok(())
    }
}
