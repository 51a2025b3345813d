// The order in which pages are preferred: a smaller count first, and among those that count as much the first in the dictionary.
#![tactic(auto)]

ghost use Rattle.std.specs.Prelude.{◌≡◌};
ghost use Rattle.bits.specs.Numbers.{big};
ghost use Rattle.build_order.specs.Order.{sooner};

// Of two rows and what is counted with each: whether the first is the better one.
pub fn sooner(m: u32, p: [u8; 4], n: u32, q: [u8; 4]) -> bool
    ensures { result ≡ sooner m (big p) n (big q) }
{
    (m, bits::number(p)) < (n, bits::number(q))
}
