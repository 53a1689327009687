//! What a command is asked to do, as plain data: the words of the command line make it, and the commands do it.
#![tactic(auto)]

mod task;

pub use task::{
    About, AttachWords, CheckEach, CheckWords, CompareWords, Each, EvidenceQuestionsWords,
    EvidenceTask, EvidenceWords, FitEach, FitWords, ListWords, MakeWords, Many, MatchWords,
    MigrateWords, QuestionsEach, QuestionsWords, RehashRequestWords, RehashWords, RenewWords,
    RenewalRequestWords, RequestWords, RootRequestWords, Several, StampQuestionsWords, StampWords,
    Stamped, Task, TextTask, UnderWords,
};
