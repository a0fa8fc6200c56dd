//! The example of docs/JOBS.md.

ghost use Rattle.std.specs.Prelude.{◌≡◌};
ghost use Rattle.replies.specs.Replies.{ExampleHolds, answer_text, example_job, example_replies};

/// A job, and the bytes of its replies.
#[derive(Clone, Copy)]
pub struct Example {
    pub job: &'static [u8],
    pub replies: &'static [u8],
}

/// A job of four lines that loads an instruction, runs it, and shows its register; and what it is answered.
pub fn worked_example() -> Example
    ensures job { result.job.now ≡ example_job }
    ensures replies { answer_text result.job.now ≡ result.replies.now }
    ensures holds { ExampleHolds }
{
    Example {
        job: b"10 BFC00000 3C011234\n20\n40 0008\n50 01\n",
        replies: b"10\n20\n40 0000000000000008 0000000000000002 0000000000000002\n50 01 12340000\n",
    }
}
