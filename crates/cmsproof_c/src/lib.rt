//! The checker for C: the exports of `library_calls` and `library_records`, each of which says again what the call
//! there says, over what the pointers hold, and the lists that callers hold. `include/cmsproof.h` declares the calls,
//! and says what a caller owes.
#![tactic(auto)]

/// Puts what a call says where its caller reads it, and gives the status.
macro_rules! put {
    ($told:expr => $size:ident, $said:ident) => {{
        let told = $told;
        *$size = told.size;
        *$said = told.said;
        told.status
    }};
}

/// What a call says by what a handle holds, which is taken out, and put back then. Without that it says nothing.
macro_rules! put_by {
    ($alloc:ident, $handle:ident: $Handle:ident, $taken:ident => $told:expr => $size:ident, $said:ident) => {{
        let Some($taken) = $handle.take($alloc) else {
            *$size = 0;
            *$said = Answer::nothing();
            return NO_LIST;
        };
        let told = $told;
        *$handle = $Handle::of($taken);
        *$size = told.size;
        *$said = told.said;
        told.status
    }};
}

/// What is told under the lists of two handles, which are taken out, and put back then. Without both nothing is told.
macro_rules! told_by_lists {
    ($alloc:ident, $trust:ident, $answers:ident, $list:ident, $asked:ident => $told:expr) => {{
        let Some((mut $list, mut $asked)) = take_both($alloc, $trust, $answers) else {
            return Told::without_text(NO_LIST, Answer::nothing());
        };
        let told = $told;
        *$trust = TrustHandle::of($list);
        *$answers = AnswersHandle::of($asked);
        told
    }};
}

/// Puts what was read into an empty handle, and gives the status: of a text that states nothing, or of memory refused.
macro_rules! keep_in {
    ($alloc:ident, $handle:ident: $Handle:ident, $read:expr, $said:ident) => {{
        let read = match $read {
            Ok(read) => read,
            Err(status) => return status,
        };
        match $Handle::keep($alloc, read) {
            Some(kept) => {
                *$handle = kept;
                DONE
            }
            None => {
                *$said = Answer::nothing();
                NO_MEMORY
            }
        }
    }};
}

mod answers;
mod answers_handle;
mod answers_seal;
mod check;
mod evidence;
mod lists;
mod making;
mod parts;
mod questions;
mod requests;
mod stamp;
mod token;
mod tree;
mod tree_handle;
mod tree_seal;
mod trust;
mod trust_handle;
mod trust_seal;
mod under;
mod verdicts;
mod version;

pub use answers::{cmsproof_answers_free, cmsproof_answers_read};
pub use answers_handle::AnswersHandle;
pub use answers_seal::AnswersSeal;
pub use check::cmsproof_check;
pub use evidence::{cmsproof_evidence_check, cmsproof_evidence_questions};
pub use making::{
    cmsproof_evidence_make, cmsproof_evidence_rehash, cmsproof_evidence_rehash_leaf,
    cmsproof_evidence_renew, cmsproof_evidence_renew_algorithm, cmsproof_evidence_renew_leaf,
};
pub use questions::cmsproof_questions;
pub use requests::{
    cmsproof_attach, cmsproof_request, cmsproof_request_of, cmsproof_request_of_signature,
    cmsproof_token,
};
pub use stamp::{cmsproof_stamp_check, cmsproof_stamp_questions};
pub use token::cmsproof_check_token;
pub use tree::{cmsproof_tree_free, cmsproof_tree_make, cmsproof_tree_root};
pub use tree_handle::TreeHandle;
pub use tree_seal::TreeSeal;
pub use trust::{
    cmsproof_trust_count, cmsproof_trust_free, cmsproof_trust_read, cmsproof_trust_share,
};
pub use trust_handle::TrustHandle;
pub use trust_seal::TrustSeal;
pub use under::cmsproof_check_under;
pub use verdicts::{cmsproof_compare, cmsproof_fit, cmsproof_match, cmsproof_show};
pub use version::cmsproof_version;
