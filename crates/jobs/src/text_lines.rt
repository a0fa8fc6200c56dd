//! A job, cut into its lines.

ghost use Rattle.std.specs.Iterator.{YieldsFirstRef, item_count};
ghost use Rattle.jobs.specs.Job.{text_lines_of};

use text::form::LINE_END;

/// The lines that are still to come of a job, each without the byte that ends it.
#[derive(Drop)]
pub struct TextLines<'a>(pub &'a [u8]);

impl<'a> Iterator for TextLines<'a> {
    type Item = &'a [u8];

    ghost next_gives = { YieldsFirstRef (λ s. text_lines_of s.0.now) };

    ghost remaining = { item_count (λ s. text_lines_of s.0.now) };

    fn next(&mut self) -> Option<&'a [u8]> {
        let line = self.0.split_inclusive(|byte| *byte == LINE_END).next()?;
        self.0 = &self.0[line.len()..];
        Some(line.strip_suffix(&[LINE_END]).unwrap_or(line))
    }
}
