//! How many operations a change has.

ghost use Rattle.std.specs.Prelude.{◌≡◌, ◌≤◌, ◌+◌};
ghost use Rattle.tp_layout.specs.declared.limits.TheConstants.{MAX_OPS};
ghost use Rattle.tp_layout.specs.Counts.{count_of};
ghost use Rattle.tp_change.specs.Operations.{op_count};

use crate::change::Change;
use crate::facts::ops_in;
use tp_layout::Record;

/// How many operations the records have together.
fn count_ops(records: &[Record]) -> usize
    requires { count_of records.now ≤ MAX_OPS }
    ensures { result ≡ count_of records.now }
{
    let mut total = 0;
    for entry in records {
        total += ops_in(entry);
    }
    total
}

impl Change {
    /// How many operations it has, from 1 to 65,536. No memory; the cost is that of going over the runs' texts.
    #[tactic(auto, unfolding(crate::specs::Operations::op_count))]
    pub fn op_count(&self) -> usize
        ensures { result ≡ op_count self.now }
    {
        count_ops(self.body.records())
    }

    /// The counter after its last operation's, at most 2^48. The cost is that of [`op_count`](Change::op_count).
    #[tactic(auto, unfolding(crate::specs::Operations::op_count))]
    pub fn next_start(&self) -> u64
        ensures { result ≡ self.now.start + op_count self.now }
    {
        self.body.start + count_ops(self.body.records()) as u64
    }
}
