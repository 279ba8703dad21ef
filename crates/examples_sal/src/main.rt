//! Examples of programs over the library, each a module of its own, one after another.
//!
//! | module | shows |
//! |---|---|
//! | `applications` | two applications on threads share a broker |
//! | `epochs` | a controller replaces its hub twice, and a stand-by follows it |
//! | `restart` | a controller continues from the frames of one that stopped |
//! | `rpc` | a client asks another one |
//! | `counter` | what they share: a domain with one number, and a client that counts in it |
//!
//! They are one program, because a program over the library takes two CPU minutes to prove before its first function.
#![tactic(auto)]

mod applications;
mod counter;
mod epochs;
mod restart;
mod rpc;

fn main(rt: HostRuntime) -> anyhow::Result<()> {
    println!(rt; "applications")?;
    applications::show(&rt, &rt)?;
    println!(rt; "epochs")?;
    epochs::show(&rt, &rt)?;
    println!(rt; "restart")?;
    restart::show(&rt)?;
    println!(rt; "rpc")?;
    rpc::show(&rt, &rt)
}
