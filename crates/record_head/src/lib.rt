// The first four bytes of a record: two of the record's own, and the number of its entries.
#![tactic(auto)]

ghost use Rattle.std.specs.Prelude.{◌≡◌, ◌≤◌, length};
ghost use Rattle.bits.specs.Places.{put_four};
ghost use Rattle.record_head.specs.Head.{record_head, count_tested};

use refusals::Refusal;

pub fn put(fields: &mut [u8], first: u8, second: u8, n: u16)
    requires { 4 ≤ length fields.old }
    ensures { fields.new ≡ put_four fields.old 0 (record_head first second n) }
{
    let head = [first, second, (n / 256 % 256) as u8, (n % 256) as u8];
    bits::put_four(fields, 0, head);
}

// A record of n entries.
pub fn test_count(fields: &[u8], n: u16) -> Result<(), Refusal>
    requires { 4 ≤ length fields.now }
    ensures { result ≡ count_tested fields.now n }
{
    if bits::big16_at(fields, 2) != n {
        return Err(Refusal::WantedList);
    }
    Ok(())
}
