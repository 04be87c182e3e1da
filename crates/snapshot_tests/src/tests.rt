//! The tests of each crate, in a module of its name; and what they share.

mod messages;
mod networks;
mod offer_board_tests;
mod offers;
mod searches;
mod snap_collector_tests;
mod snap_marker_tests;
mod stable_listing_tests;
mod stable_parts_tests;
mod stable_paths_tests;
mod stable_search_tests;
