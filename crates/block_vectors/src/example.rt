// A phase block of document 003's example: its header, its phase lines, two of its comments and a closing line. The printed
// example has lost its columns, so each line is laid out by the table "Phase Block Format".

// Values are those printed, and blank where none is. Seconds have the table's three decimals; an identification of nine
// digits reaches into its extension, and a digit printed once more behind it is left out. The comments are of "OrigID Phase and Phase
// Information Comments" and "Additional Phase Measurement Comments".
pub const BLOCK: [u8; 4055] = *b"\
    Sta     Dist  EvAz Phase        Time      TRes  Azim AzRes   Slow   SRes Def   SNR       Amp   Per Qual Magnitude    ArrID    Agy   Deploy   Ln Auth  Rep   PCh ACh L   Lat       Lon     Elev    Depth\n\
    OJC     0.55  82.4 Pg       00:09:09.300   1.1                                                      _e            752078604                     WAR   WAR   ??Z ???              19.7984   391.0   30.0\n\
    \x20(#OrigID 12345678)\n\
    OJC     0.55  82.4 Sq       00:09:16.580                                                            _e            752078604                     WAR   WAR   ??N ???              19.7984   391.0   30.0\n\
    MORC    0.98 248.2 Pg       00:09:19.700        63.7                                                 e            790040167                                 ??? ???              17.5425   742.0    0.0\n\
    MORC    0.98 248.2 Sg       00:09:32.000        63.7                                     9.5  0.19  _e            790040167                                 ??? ???              17.5425   742.0    0.0\n\
    MORC    0.98 248.2 Pb       00:09:19.700   0.1                                                      _e            790074754                                 ??? ???              17.5425   742.0    0.0\n\
    MORC    0.98 248.2 SG       00:09:32.000                                                            _e            790074754                                 ??? ??? _            17.5425   742.0    0.0\n\
    NIE     1.14 129.4 Pn       00:09:22.860   0.3                                                     __e            752078605   FDSN  PL          WAR         ??Z ??? _            20.2996   645.0    0.0\n\
    NIE     1.14 129.4 Sg       00:09:40.880                                                           __e            752078605   FDSN  PL          WAR         ??E ??? _            20.2996   645.0    0.0\n\
    KRLC    1.40 267.8 PG       00:09:25.400                                                            _e            815518292   ISC   IR          PRU   PRU   ??? ???    50.0753   16.7817   754.0    0.0\n\
    KRLC    1.40 267.8 SG       00:09:43.900                                                 8.0  0.40  _e ML     1.2 815518292   ISC   IR          PRU   PRU   ??Z ???    50.0753   16.7817   754.0    0.0\n\
    JAVC    1.54 213.3 Pn       00:09:29.100        31.7                                                _e            790040165   FDSN  OE          IPEC  IPEC  ??? ??? _  48.8591   17.6707   827.6    0.0\n\
    JAVC    1.54 213.3 Pb       00:09:29.200   0.1                                                      _e            790073666   FDSN  OE          IPEC  IPEC  ??? ??? _  48.8591   17.6707   827.6    0.0\n\
    STHS    1.66 115.4 Pn       00:09:30.400   0.1                                                      _e            832657624   FDSN  SK          BRA   BRA   ??? ??? _  49.4167   21.2437   534.0    0.0\n\
    STHS    1.66 115.4 SN       00:09:55.100                                                            _e            832657624   FDSN  SK          BRA   BRA   ??? ??? _  49.4167   21.2437   534.0    0.0\n\
    STHS    1.66 115.4 LG       00:10:02.700                                                            _e            832657624   FDSN  SK          BRA   BRA   ??? ??? _  49.4167   21.2437   534.0    0.0\n\
    VYHS    1.66 182.6 Pn       00:09:30.400   0.1                                                      _e            832656662   FDSN  SK          BRA   BRA   ??? ??? _  48.4940   18.8361   480.0    0.0\n\
    VYHS    1.66 182.6 SN       00:09:53.600                                                            _e            832656662   FDSN  SK          BRA   BRA   ??? ??? _  48.4940   18.8361   480.0    0.0\n\
    DPC     1.70 277.8 PG       00:09:29.900                                                            _e            815518289   FDSN  CZ          PRU   PRU   ??? ??? _  50.3502   16.3222   748.0    0.0\n\
    DPC     1.70 277.8 SG       00:09:53.700                                                 5.8  0.50  _e ML     1.2 815518289   FDSN  CZ          PRU   PRU   ??Z ??? _  50.3502   16.3222   748.0    0.0\n\
    \x20(#MEASURE CODA_DURATION=5.4+0.2)\n\
    \n";
