//! Tests of texts of networks, of assignments and of schedules, of lines (`net_text`, `schedule_text`), and of
//! the engines that read one text (`text_engines`): what no row of `program_rows` shows. They stand in a crate of
//! their own, since a crate with tests is proved once for itself and once more for them.
#![tactic(auto)]

#[cfg(test)]
mod tests;
