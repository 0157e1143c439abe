//! Computing with letters: a number kind and a post together.
ghost use Rattle.std.specs.Prelude.{◌≡◌};
ghost use Rattle.post.specs.Answers.{said_take};
ghost use Rattle.post.specs.Mail.{after_put, take_answer, after_take};
ghost use Rattle.post.specs.Terms.{plus_term};

use crate::answers::PostRefusal;
use crate::kinds::NumberKind;
use crate::pair::Pair;
use crate::service::Post;

/// Puts an element to a pair, takes the pair's oldest letter and gives `value + coefficient × letter`,
/// or none where no letter waits, as on a post of depth 0. The put may say full; the oldest letter is then one that
/// waited before.
pub fn pass_term<T: NumberKind, P: Post<Letter = T>>(
    post: &mut P,
    pair: Pair,
    element: T,
    coefficient: T,
    value: T,
) -> Result<Option<T>, PostRefusal>
    ensures answer { said_take result ≡ plus_term T.NumberKind.sum T.NumberKind.product coefficient value (take_answer (after_put (P.Post.mail post.old) pair.from pair.to element) pair.from pair.to) }
    ensures after { P.Post.mail post.new ≡ after_take (after_put (P.Post.mail post.old) pair.from pair.to element) pair.from pair.to }
{
    post.put(pair, element)?;
    Ok(
        post.take(pair)?
            .map(|letter| value.plus(coefficient.times(letter))),
    )
}
