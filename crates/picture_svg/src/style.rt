/// The classes of a drawing, and the patterns of the letters.
pub static STYLE: &str = "<style>
svg{background:#fff;max-width:100%;height:auto}
text{font:11px system-ui,'Segoe UI',Helvetica,Arial,'DejaVu Sans',sans-serif;fill:#1b1f23}
.h{font-size:14px;font-weight:700}.b{font-weight:700}.e{text-anchor:end}.c{text-anchor:middle}
.m{font-family:ui-monospace,Menlo,Consolas,'DejaVu Sans Mono',monospace;font-size:10px}
.q{fill:#59626b}.x{fill:#b3261e;font-weight:700}.i{fill:#fff}
.l{fill:#111;stroke:#fff;stroke-width:3;stroke-linejoin:round;paint-order:stroke}
.g{stroke:#e2e5e8;fill:none}.k{stroke:#1b1f23;fill:none}.w{stroke:#8a939c;fill:none}
.z{stroke:#8a939c;fill:none;stroke-dasharray:1 3}
.p{stroke:#1b1f23;fill:none;stroke-width:2;stroke-linejoin:round}
.d{fill:#1b1f23}.u{fill:#fff;stroke:#1b1f23}.r{stroke:#1b1f23;stroke-width:.5}
.f{stroke:#b3261e;stroke-width:3}.j{stroke:#b3261e;stroke-width:3;stroke-dasharray:3 2}
.n{fill:#9fd3f3}.v{fill:#b9c0c7}.a{fill:#dcebf7}.y{fill:#e8b878}
.o{fill:none;pointer-events:all}g:hover>.o{fill:#8a939c;fill-opacity:.25}
@media(prefers-color-scheme:dark){
svg{background:#15181b}
text{fill:#e6e9ec}.q{fill:#a3adb7}.x{fill:#ff8a80}.i{fill:#fff}.l{fill:#111}
.g{stroke:#2c3237}.k,.p{stroke:#e6e9ec}.w,.z{stroke:#7d8790}
.d{fill:#e6e9ec}.u{fill:#15181b;stroke:#e6e9ec}.r{stroke:#e6e9ec}.f,.j{stroke:#ff8a80}.n{fill:#2f6a8f}.v{fill:#59626b}.a{fill:#24445c}.y{fill:#8a5a1c}}
</style>
<defs>
<pattern id=\"S\" width=\"6\" height=\"6\" patternUnits=\"userSpaceOnUse\"><rect width=\"6\" height=\"6\" fill=\"#56b4e9\"/><path d=\"M-1 1L1 -1M0 6L6 0M5 7L7 5\" stroke=\"#0b3c5d\"/></pattern>
<pattern id=\"s\" width=\"6\" height=\"6\" patternUnits=\"userSpaceOnUse\"><rect width=\"6\" height=\"6\" fill=\"#d3eaf8\"/><circle cx=\"1.5\" cy=\"1.5\" r=\"1\" fill=\"#0b3c5d\"/><circle cx=\"4.5\" cy=\"4.5\" r=\"1\" fill=\"#0b3c5d\"/></pattern>
<pattern id=\"C\" width=\"6\" height=\"6\" patternUnits=\"userSpaceOnUse\"><rect width=\"6\" height=\"6\" fill=\"#e69f00\"/><path d=\"M-1 5L1 7M0 0L6 6M5 -1L7 1\" stroke=\"#4d3500\"/></pattern>
<pattern id=\"O\" width=\"6\" height=\"6\" patternUnits=\"userSpaceOnUse\"><rect width=\"6\" height=\"6\" fill=\"#f7d68a\"/><path d=\"M3 0V6\" stroke=\"#4d3500\"/></pattern>
<pattern id=\"a\" width=\"6\" height=\"6\" patternUnits=\"userSpaceOnUse\"><rect width=\"6\" height=\"6\" fill=\"#f0e442\"/></pattern>
<pattern id=\"w\" width=\"6\" height=\"6\" patternUnits=\"userSpaceOnUse\"><rect width=\"6\" height=\"6\" fill=\"#dcdfe2\"/><path d=\"M0 2H6M0 5H6\" stroke=\"#6b747d\"/></pattern>
<pattern id=\"m\" width=\"6\" height=\"6\" patternUnits=\"userSpaceOnUse\"><rect width=\"6\" height=\"6\" fill=\"#0072b2\"/></pattern>
<pattern id=\"T\" width=\"6\" height=\"6\" patternUnits=\"userSpaceOnUse\"><rect width=\"6\" height=\"6\" fill=\"#d55e00\"/><path d=\"M-1 5L1 7M0 0L6 6M5 -1L7 1\" stroke=\"#fff\"/></pattern>
<pattern id=\"R\" width=\"6\" height=\"6\" patternUnits=\"userSpaceOnUse\"><rect width=\"6\" height=\"6\" fill=\"#cc79a7\"/><path d=\"M0 0L6 6M0 6L6 0\" stroke=\"#4a1c35\" stroke-width=\".7\"/></pattern>
<pattern id=\"i\" width=\"6\" height=\"6\" patternUnits=\"userSpaceOnUse\"><rect width=\"6\" height=\"6\" fill=\"#f0e442\"/><path d=\"M1 0V6M4 0V6\" stroke=\"#0072b2\" stroke-width=\"1.4\"/></pattern>
</defs>
";
