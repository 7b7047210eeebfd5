// The input of the program: its lines and its tables (document 01, "The program"; document 02, A.4).
#![tactic(auto)]

pub mod lines;
pub mod tables;
