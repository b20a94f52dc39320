//! Each production printed once, and tokens. The texts are written by hand, from the syntax of C.
mod built;
mod declarations;
mod declarators;
mod expressions;
mod operators;
mod programs;
mod specifiers;
mod statements;
mod tokens;
