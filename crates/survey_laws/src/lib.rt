// A store's slots and waiting places as numbered items, as the code that reads it out holds them, and that the items it takes and leaves
// are the entries and the report. No code.
#![tactic(auto)]
