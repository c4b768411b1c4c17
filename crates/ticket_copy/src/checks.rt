// Whether the second name may be taken.
use super::messages::{say_not_regular, say_same};
use file_facts::{Facts, are_same, facts_of, is_regular};
use named_files::Named;
use std::rt::Files;

// Not where it leads to the file that is copied, of which that is known, nor where it leads to something else than a regular file.
pub fn may_replace(files: &impl Files, facts: Option<Facts>, old: Named, new: Named) -> bool {
    let Some(replaced) = facts_of(files, new.name) else {
        return true;
    };
    if facts.is_some_and(|facts| are_same(facts, replaced)) {
        say_same(old.name, new.name);
        return false;
    }
    if !is_regular(replaced) {
        say_not_regular(new.name);
        return false;
    }
    true
}
