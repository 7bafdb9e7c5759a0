// What is written to standard output. What cannot be written is left out.

pub fn print(rt: &HostRuntime, text: &[u8]) {
    let _ = rt.write_all(text);
}

pub fn print_number(rt: &HostRuntime, n: u32) {
    let _ = rt.print(n);
}
