// A fixed word and a number in decimal digits after it: read, and written.
// Each field's answer is taken apart with let else, and not by `?`: 01 names that form for the reader of a record.
#![tactic(auto)]

ghost use Rattle.std.specs.Prelude.{◌≡◌, ◌+◌, ◌^◌, ◌≤◌, ◌<◌, length};
ghost use Rattle.labelled.specs.Labelled.{field_after, WroteAfter};

// Reads the width digits that stand after word, which stands at the place at.
pub fn field_after(s: &[u8], at: usize, word: &[u8], width: usize) -> Option<u32>
    requires { (0 < length word.now) × (0 < width) × (width ≤ 8) }
    ensures { result ≡ field_after s.now at word.now width }
{
    if !field::has_at(s, at, word) {
        return None;
    }
    let Some(v) = decimal::digits_at(s, at + word.len(), width) else {
        return None;
    };
    Some(v as u32)
}

// Writes word and after it n as width digits, and gives the place after them.
pub fn put_after(out: &mut [u8], at: usize, word: &[u8], width: usize, n: u32) -> usize
    requires { (width ≤ 16) × (n < 10 ^ width) × (at + length word.now + width ≤ length out.old) }
    ensures { WroteAfter out.old at word.now width n out.new result }
{
    let digits = field::put_bytes(out, at, word);
    decimal::put_digits(out, digits, width, n as u64)
}
