// A whole text.
ghost use Rattle.std.specs.Prelude.{◌≡◌, ◌<◌};
ghost use Rattle.hexread.specs.Answers.{judged_as, raised};
ghost use Rattle.hexfile.specs.Text.{said};

use crate::record::{Fault, Record, record_in};

// The largest end, after one data record more.
fn raised(best: usize, page: usize, address: usize, count: usize) -> usize
    requires { (page < 131072) × ((address < 131072) × (count < 131072)) }
    ensures { result ≡ raised best page address count }
{
    if count == 0 {
        return best;
    }
    best.max(65536 * page + address + count)
}

// The largest end of a text's data, or why it is refused: in one pass, without storing anything.
pub fn judge(text: &[u8]) -> Result<usize, Fault>
    ensures { result ≡ judged_as 0 (said text.now) }
{
    let mut rest = text;
    let mut page = 0;
    let mut best = 0;
    loop {
        match record_in(rest)? {
            Record::Data { address, count } => {
                best = raised(best, page, address, count);
                rest = &rest[12 + 2 * count..];
            }
            Record::Page(next) => {
                page = next;
                rest = &rest[16..];
            }
            Record::End if rest.len() == 12 => return Ok(best),
            Record::End => return Err(Fault::Malformed),
        }
    }
}
