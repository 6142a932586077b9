// The entries for the device programmer's host, which is written in C: numbers and byte runs go in, and one number comes
// out, the refusal's number times 2 ^ 32 plus a payload. Words stand in the runs as four bytes, lowest first.
#![tactic(auto)]

mod copy;
mod pack;
mod text;
mod whole;
mod words;
