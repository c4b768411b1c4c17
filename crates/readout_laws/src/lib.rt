// What reading out a closed store promises: every good node an entry or told as repeated, every bad one told; the file reads back; after a 9
// nothing is left out, and the entries are the plain machine's contents before or after that call. No code.
#![tactic(auto)]
