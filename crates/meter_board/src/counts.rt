ghost use Rattle.std.specs.Prelude.{◌≡◌, ◌≤◌};
ghost use Rattle.meter_board.specs.Causes.{Rose, one_more};

/// Adds one to a count, which stands still at the end of its type.
pub fn raise(count: &mut u64)
    ensures value { count.new ≡ one_more count.old }
    ensures later { count.old ≤ count.new }
    ensures rose { Rose count.old count.new }
{
    *count = count.saturating_add(1);
}
