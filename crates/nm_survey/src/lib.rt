//! The smallest composite, with a loop and a choice by outcome: the worked example of how a part is made of pieces.
#![tactic(auto)]

pub mod survey;

pub use survey::{Survey, SurveyMade};
