// A date yyyymmdd and a time hhmmss as two numbers: whether they are real, which is later, and as they stand in a record, read and written.
// Each field's answer is taken apart with let else, and not by `?`: 01 names that form for the reader of a record.
#![tactic(auto)]

ghost use Rattle.std.specs.Prelude.{◌≡◌, true, ◌++◌, ◌+◌, ◌*◌, ◌≤◌, ◌<◌, length};
ghost use Rattle.field.specs.Part.{Wrote};
ghost use Rattle.moment.specs.Moment.{real_moment, time_bytes, moment_bytes, at_or_after};
ghost use Rattle.moment.specs.Reading.{time_after, moment_after};

pub fn is_real(date: u32, time: u32) -> bool
    ensures { result ≡ real_moment date time }
{
    if calendar::is_real_date(date) {
        return calendar::is_real_time(time);
    }
    false
}

// Whether a date and time are at or after another, compared date first.
pub fn is_at_or_after(date: u32, time: u32, from_date: u32, from_time: u32) -> bool
    ensures { result ≡ at_or_after date time from_date from_time }
{
    if date == from_date {
        return from_time <= time;
    }
    from_date < date
}

fn hhmmss(hour: u32, minute: u32, second: u32) -> u32
    requires { (hour < 100) × (minute < 100) × (second < 100) }
    ensures { result ≡ hour * 10000 + minute * 100 + second }
{
    hour * 10000 + minute * 100 + second
}

// Reads dd:dd:dd after word, which stands at the place at, as hhmmss.
pub fn time_after(s: &[u8], at: usize, word: &[u8]) -> Option<u32>
    requires { 0 < length word.now }
    ensures { result ≡ time_after s.now at word.now }
{
    let Some(hour) = labelled::field_after(s, at, word, 2) else {
        return None;
    };
    let after_hour = at + word.len() + 2;
    let Some(minute) = labelled::field_after(s, after_hour, b":", 2) else {
        return None;
    };
    let Some(second) = labelled::field_after(s, after_hour + 3, b":", 2) else {
        return None;
    };
    Some(hhmmss(hour, minute, second))
}

// Reads a real date and time after word, which stands at the place at.
pub fn moment_after(s: &[u8], at: usize, word: &[u8]) -> Option<(u32, u32)>
    requires { 0 < length word.now }
    ensures { result ≡ moment_after s.now at word.now }
{
    let Some(date) = labelled::field_after(s, at, word, 8) else {
        return None;
    };
    let Some(time) = time_after(s, at + word.len() + 8, b" ") else {
        return None;
    };
    if is_real(date, time) {
        Some((date, time))
    } else {
        None
    }
}

// Writes word and after it a time as dd:dd:dd, and gives the place after it.
pub fn put_time(out: &mut [u8], at: usize, word: &[u8], time: u32) -> usize
    requires { (time < 1000000) × (at + length word.now + 8 ≤ length out.old) }
    ensures { Wrote out.old at (word.now ++ time_bytes time) out.new result }
{
    let fields = calendar::fields_of(time);
    let after_hour = labelled::put_after(out, at, word, 2, fields.high);
    let after_minute = labelled::put_after(out, after_hour, b":", 2, fields.middle);
    labelled::put_after(out, after_minute, b":", 2, fields.low)
}

// Writes word and after it a real date and time, and gives the place after them.
pub fn put_moment(out: &mut [u8], at: usize, word: &[u8], date: u32, time: u32) -> usize
    requires { (real_moment date time ≡ true) × (at + length word.now + 17 ≤ length out.old) }
    ensures { Wrote out.old at (word.now ++ moment_bytes date time) out.new result }
{
    let after_date = labelled::put_after(out, at, word, 8, date);
    put_time(out, after_date, b" ", time)
}
