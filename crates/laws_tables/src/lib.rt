#![tactic(auto)]

// What is proved of whole tables, read and written: what skip numbers, words, the reader, the listing, present values and relays cite.
