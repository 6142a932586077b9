ghost use Rattle.std.specs.Prelude.{◌≡◌};
ghost use Rattle.rules.specs.Answers.{reply_of};
ghost use Rattle.rules.specs.Calls.{lent, listed, query};
ghost use Rattle.probe.specs.Packed.{packed};

use crate::pack::query_reply;
use rules::Setting;

#[unsafe(no_mangle)]
pub extern "C" fn probe_query(n: u32, order: &[u32], sheet: &[i32], start: u32) -> u64
    ensures { result ≡ packed (reply_of listed (query n (lent order.now) (lent sheet.now) start)) }
{
    query_reply(search::query(n, order, sheet, Setting(start)))
}
