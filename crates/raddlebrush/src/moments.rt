// Dates yyyymmdd and times hhmmss.
ghost use Rattle.std.specs.Prelude.{◌≡◌};
ghost use Rattle.calendar.specs.Calendar.{real_date, real_time};

pub fn rb_is_real_date(date: u32) -> bool
    ensures { result ≡ real_date date }
{
    calendar::is_real_date(date)
}

pub fn rb_is_real_time(time: u32) -> bool
    ensures { result ≡ real_time time }
{
    calendar::is_real_time(time)
}
