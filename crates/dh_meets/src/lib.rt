//! The rules on ports: the events of a program's text, which of its accesses may meet, which reads share, what
//! accesses charge by their keys, and whether a program keeps its ports. It has definitions alone, by which
//! `dh_ports` judges and of which `dh_sound` speaks.
#![tactic(auto)]
