//! The judgments of the bench, which stand in specs/: types, contexts, the types of terms, facts and
//! rules. There is no code here; the theorem about contexts is named by the type check, which rests on it.
#![tactic(auto)]
