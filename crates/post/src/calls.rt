//! Calls of a post as values, one at a time and in lists.
ghost use Rattle.std.specs.Prelude.{◌≡◌, min, map, length, take};
ghost use Rattle.post.specs.Calls.{said, answer_of, after_call, Answered};

use crate::answers::{PostRefusal, Posted};
use crate::kinds::NumberKind;
use crate::pair::Pair;
use crate::service::Post;

/// A call of a post that may change a row.
#[derive(Clone, Copy, PartialEq, Eq, Debug)]
pub enum Call<T> {
    Put { pair: Pair, letter: T },
    Take { pair: Pair },
}

/// What such a call did, where it is not refused.
#[derive(Clone, Copy, PartialEq, Eq, Debug)]
pub enum Reply<T> {
    Put(Posted),
    Taken(Option<T>),
}

/// Makes one call.
pub fn make_call<P: Post>(
    post: &mut P,
    call: Call<P::Letter>,
) -> Result<Reply<P::Letter>, PostRefusal>
    ensures answer { said result ≡ answer_of (P.Post.mail post.old) call }
    ensures after { P.Post.mail post.new ≡ after_call (P.Post.mail post.old) call }
{
    match call {
        Call::Put { pair, letter } => Ok(Reply::Put(post.put(pair, letter)?)),
        Call::Take { pair } => Ok(Reply::Taken(post.take(pair)?)),
    }
}

/// Makes the calls of a list in order, as many as there is room for replies, and gives their number.
pub fn serve<P: Post>(
    post: &mut P,
    calls: &[Call<P::Letter>],
    replies: &mut [Result<Reply<P::Letter>, PostRefusal>],
) -> usize
    ensures number { result ≡ min (length calls.now) (length replies.old) }
    ensures answered { Answered (P.Post.mail post.old) calls.now replies.old replies.new (P.Post.mail post.new) result }
{
    let number = calls.len().min(replies.len());
    // Kept: a zip of the calls with `replies.iter_mut()` was tried; of what is written through it a proof knows the length alone.
    for k in 0..number {
        replies[k] = make_call(post, calls[k]);
    }
    number
}

/// Makes the same calls in order on two posts, as many as there is room for the replies of both, and gives their
/// number. Two posts that mean the same cannot be told apart: they answer alike, and mean the same afterwards.
pub fn serve_both<T: NumberKind, P: Post<Letter = T>, Q: Post<Letter = T>>(
    one: &mut P,
    other: &mut Q,
    calls: &[Call<T>],
    replies: &mut [Result<Reply<T>, PostRefusal>],
    others: &mut [Result<Reply<T>, PostRefusal>],
) -> usize
    ensures number { result ≡ min (min (length calls.now) (length replies.old)) (length others.old) }
    ensures agree { P.Post.mail one.old ≡ Q.Post.mail other.old → (map said (take result replies.new) ≡ map said (take result others.new)) × (P.Post.mail one.new ≡ Q.Post.mail other.new) }
    ensures one { Answered (P.Post.mail one.old) calls.now replies.old replies.new (P.Post.mail one.new) result }
    ensures other { Answered (Q.Post.mail other.old) calls.now others.old others.new (Q.Post.mail other.new) result }
{
    let number = calls.len().min(replies.len()).min(others.len());
    let calls = &calls[..number];
    serve(one, calls, replies);
    serve(other, calls, others);
    number
}
