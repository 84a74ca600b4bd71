ghost use Rattle.std.specs.Prelude.{◌≡◌, ◌≤◌, length};
ghost use Rattle.can_frame.specs.Sizes.{most_members};
ghost use Rattle.cmd_node.specs.Words.{next_words, own_words, rank, word_by_rank, word_of};

use cmd_io::Draws;

/// The word of the lowest member, where the members are told their list.
const LEAST_WORD: usize = 1_000;

/// By so much the highest member waits longer than the lowest, in milliseconds.
const MOST_LONGER: usize = 1_000;

/// The words of a member, which choose how long it waits before it stands for election.
#[derive(Drop)]
pub(crate) enum Words {
    /// They are drawn.
    Drawn(Draws),

    /// It is the same each time: that of a member that is told who the members are. So no two of them wait alike.
    Ranked(u32),
}

impl Words {
    /// Before the first word of the node `id`, which is told these members.
    pub fn new(told: &[u8], id: u8) -> Words
        requires few { length told.now ≤ most_members }
        ensures { result ≡ own_words told.now id }
    {
        if told.is_empty() {
            Words::Drawn(Draws::new(u64::from(id)))
        } else {
            Words::Ranked(word_by_rank(told, id))
        }
    }

    /// The next word.
    pub fn next(&mut self) -> u32
        ensures moved { self.new ≡ next_words self.old }
        ensures word { result ≡ word_of self.new }
    {
        match self {
            Words::Drawn(draws) => draws.word(),
            Words::Ranked(word) => *word,
        }
    }
}

/// The word of the node `id` among these members.
fn word_by_rank(members: &[u8], id: u8) -> u32
    requires few { length members.now ≤ most_members }
    ensures { result ≡ word_by_rank members.now id }
{
    let shares = members.len().saturating_sub(1).max(1);
    (LEAST_WORD + rank(members, id) * MOST_LONGER / shares) as u32
}

/// How many of these members have a lower node ID.
fn rank(members: &[u8], id: u8) -> usize
    ensures rank { result ≡ rank members.now id }
    ensures most { result ≤ length members.now }
{
    members.iter().filter(|member| **member < id).count()
}
