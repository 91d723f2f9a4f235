// Dates yyyymmdd and times hhmmss.
ghost use Rattle.std.specs.Prelude.{◌≡◌};
ghost use Rattle.calendar.specs.Calendar.{real_date, real_time};

#[unsafe(no_mangle)]
pub extern "C" fn rb_is_real_date(date: u32) -> bool
    ensures { result ≡ real_date date }
{
    raddlebrush::moments::rb_is_real_date(date)
}

#[unsafe(no_mangle)]
pub extern "C" fn rb_is_real_time(time: u32) -> bool
    ensures { result ≡ real_time time }
{
    raddlebrush::moments::rb_is_real_time(time)
}
