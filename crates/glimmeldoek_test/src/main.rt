// Every case folder: its name, and what is printed for its two sheets. Written by tests/cases.
#![tactic(auto)]

mod path;

use path::joined;
use std::io;
use std::rt::Files;

const FOLDERS: [&str; 71] = [
    "p1",
    "p2",
    "p3",
    "p5",
    "p6",
    "p7",
    "p8",
    "p9",
    "p10",
    "p11",
    "parity_9",
    "on_10",
    "on_11",
    "on_12",
    "on_13",
    "on_15",
    "off_10",
    "off_11",
    "off_12",
    "off_13",
    "off_15",
    "on_before_off",
    "off_before_14",
    "other_inputs",
    "collision_of_4",
    "collision_first_variable",
    "parity_10",
    "comments",
    "comment_not_closed",
    "header_spaces",
    "header_tab",
    "header_indented",
    "header_alone",
    "header_carriage_return",
    "header_and_more",
    "header_inputs_zero_first",
    "header_clauses_zero_first",
    "header_inputs_0",
    "header_inputs_25",
    "header_clauses_1025",
    "header_upper_case",
    "line_feeds_after_returns",
    "tabs",
    "no_final_line_feed",
    "one_line",
    "clause_over_lines",
    "percent",
    "percent_and_anything",
    "percent_joined",
    "percent_in_clause",
    "comment_after_header",
    "minus_zero",
    "plus_one",
    "zero_first",
    "two_zeros",
    "minus_alone",
    "letters",
    "not_closed",
    "count_below",
    "count_above",
    "token_before_count",
    "bytes_32768",
    "bytes_32769",
    "numbers_8192",
    "numbers_8193",
    "on_missing",
    "off_missing",
    "both_missing",
    "on_a_folder",
    "on_empty",
    "off_empty",
];

fn case<R: Files + Print>(rt: &R, folder: &str) -> io::Result<()> {
    println!(rt; "{folder}")?;
    let mut on = [0; 64];
    let ons = joined(folder.as_bytes(), b"/on.cnf", &mut on);
    let mut off = [0; 64];
    let offs = joined(folder.as_bytes(), b"/off.cnf", &mut off);
    running::run(rt, &on[..ons], &off[..offs]);
    Ok(())
}

fn main(rt: HostRuntime) -> io::Result<()> {
    for folder in FOLDERS {
        case(&rt, folder)?;
    }
    Ok(())
}
