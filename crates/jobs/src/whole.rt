//! A whole job at once.

ghost use Rattle.std.specs.Prelude.{◌≡◌, List};
ghost use Rattle.jobs.specs.Job.{AnswersJob, last_reply_of};
ghost use Rattle.jobs.specs.Limits.{max_job};
ghost use Rattle.text.specs.declared.reply.Reply.{Reply};

use super::job::Job;
use bus::memory::Bus;
use text::reply::Reply;

/// Does a whole job on a pile, and gives its last reply; none where it has no line.
pub fn last_reply<B: Bus + Drop>(pile: B, bytes: &[u8]) -> Option<Reply>
    ensures { (replies : List Reply)
        × AnswersJob B.Bus.means B.Bus.steps max_job pile bytes.now replies × (result ≡ last_reply_of replies) }
{
    let mut last = None;
    for reply in Job::new(pile, bytes) {
        last = Some(reply);
    }
    last
}
