//! Times and rates, printed on standard error.
use anyhow::Result;
use std::time::Duration;

/// Prints how long something took. No clause says what is printed.
pub(crate) fn print_time(rt: &impl Eprint, what: &str, time: Duration) -> Result<()> {
    let milliseconds = time.as_millis();
    eprintln!(rt; "{what}: {milliseconds} milliseconds")?;
    Ok(())
}

/// Prints the time, and the rate in millions a second, with one decimal. No clause says what is printed.
pub(crate) fn print_rate(rt: &impl Eprint, looked: u64, time: Duration) -> Result<()> {
    let microseconds = u64::try_from(time.as_micros()).unwrap_or(u64::MAX).max(1);
    let tenths = looked.saturating_mul(10) / microseconds;
    let (seconds, thousandths) = (microseconds / 1_000_000, microseconds / 1_000 % 1_000);
    let (millions, tenth) = (tenths / 10, tenths % 10);
    eprintln!(rt; "{seconds}.{thousandths:03} seconds, {millions}.{tenth} million each second")?;
    Ok(())
}
