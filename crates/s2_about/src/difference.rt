//! A record compared with other lines.

/// How a record differs from other lines.
#[derive(Clone, Copy)]
pub enum Difference<'t> {
    /// Its line with this number, counted from 1, has another value for this key.
    Other { line: usize, key: &'t str },
    /// It has no line with this key.
    Lacks(&'t str),
}

/// A line without the comma after it.
fn bare(line: &str) -> &str {
    line.strip_suffix(',').unwrap_or(line)
}

/// The key of a line.
fn key_of(line: &str) -> Option<&str> {
    let (_, rest) = line.split_once('"')?;
    let (key, _) = rest.split_once('"')?;
    Some(key)
}

/// How a record differs from a line with this key.
fn line_difference<'t>(record: &str, line: &'t str, key: &'t str) -> Option<Difference<'t>> {
    let mut number: usize = 0;
    for other in record.lines() {
        number = number.saturating_add(1);
        if key_of(other) == Some(key) {
            if bare(other) == bare(line) {
                return None;
            }
            return Some(Difference::Other { line: number, key });
        }
    }
    Some(Difference::Lacks(key))
}

/// The first difference of a record from these lines: each of them must be in the record.
pub fn first_difference<'t>(lines: &'t str, record: &str) -> Option<Difference<'t>> {
    for line in lines.lines() {
        if let Some(key) = key_of(line) {
            let found = line_difference(record, line, key);
            if found.is_some() {
                return found;
            }
        }
    }
    None
}
