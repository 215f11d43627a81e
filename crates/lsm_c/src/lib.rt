// The C interface; `lsm_c_c` exports it. Every number has 64 bits; a slice comes as pointer and length. Every function returns document
// 01's number, 0 where it accepts, and overwrites the whole of `answer`: with the answer, or with a refusal's row and zeros after it. Arguments
// come one by one, a description as its words and a coordinate as four numbers, since that is how C hands them in.
#![tactic(auto)]

ghost use Rattle.std.specs.Prelude.{◌≡◌, ◌<◌, get_or};
ghost use Rattle.lsm_format.specs.Code.{answer_by};
ghost use Rattle.lsm_channel_colors.specs.Code.{meta_of};
ghost use Rattle.lsm_c.specs.Calls.{OpenedBy, Answered, LookedUp};

use lsm_channel_colors::ChannelMeta;
use lsm_description::channel;
use lsm_format::error::Refusal;
use lsm_reader::open::open_file;
use lsm_words::answers::{CHANNEL_WORDS, OPEN_WORDS, channel_words, open_words};
use lsm_words::description::{DESCRIPTION_WORDS, read_description};

pub mod pictures;

// Hands an answer's words to the caller, and returns the first of them.
pub(crate) fn hand<const N: usize>(words: [usize; N], answer: &mut [usize; N]) -> usize
    requires { 0 < N }
    ensures handed { answer.new ≡ words.entry }
    ensures first { result ≡ get_or words.entry 0 0 }
{
    *answer = words;
    words[0]
}

// Opens a file and writes its strips into the table.
#[tactic(auto, using(crate::proofs::Calls::opened_by))]
pub fn lsm_open(file: &[u8], table: &mut [usize], answer: &mut [usize; OPEN_WORDS]) -> usize
    ensures { OpenedBy file.now table.old table.new answer.new result }
{
    hand(open_words(open_file(file, table)), answer)
}

// The lookup with the description that these words are. No description is refused before anything else.
#[tactic(auto, unfolding(crate::specs::Calls::lookup_by, crate::specs::Calls::lookup_memory_by, lsm_format::specs::Answer::bind))]
fn look_up(
    file: &[u8],
    description: &[usize; DESCRIPTION_WORDS],
    index: usize,
    name: &mut [u8],
) -> Result<ChannelMeta, Refusal>
    ensures { Answered file.now description.now index name.old name.new (answer_by meta_of result) }
{
    let d = read_description(description)?;
    channel(file, d, index, name)
}

// The colour and name of a channel. The name's text is written to `name`.
#[tactic(auto, using(crate::proofs::Calls::looked_up))]
pub fn lsm_channel(
    file: &[u8],
    description: &[usize; DESCRIPTION_WORDS],
    index: usize,
    name: &mut [u8],
    answer: &mut [usize; CHANNEL_WORDS],
) -> usize
    ensures { LookedUp file.now description.now index name.old name.new answer.new result }
{
    hand(
        channel_words(look_up(file, description, index, name)),
        answer,
    )
}
