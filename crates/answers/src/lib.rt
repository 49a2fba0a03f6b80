// What a call answers to a caller in another language: one number, and an answer in two lent slices.
#![tactic(auto)]

pub mod number; // the number that a call answers
pub mod file_number; // the number that reading and writing a plan file answer, and numbers that are taken for n and the edition
pub mod answer; // an answer, handed over to a caller in another language
pub mod cars_number; // one number for two cars
pub mod call_number; // the number that the count, the distance call and judging answer
